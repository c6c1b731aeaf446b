//! What holds of every network that a file lays down. Called by the laws of the replay.
ghost use Rattle.network_file.specs.Laws.{CallsAreCalls, CallsDeclaredOnce, DeclaredOnce, NoMailAtPrompts, PairsArePairs, SettingsFit, SettingsInRange};

/// Each node is declared once, and no two have one call. The version of a file stands before its settings, and each of them is one that
/// files of that version may have, within the range of its key: before version 3 no window of a circuit is above 64, and before version 4
/// no node keeps mail. None keeps mail that serves users at a prompt. The nodes' calls, who is heard, to whom a route is locked, for whom
/// a circuit is asked, for whom a mail is and at which node, and all repeaters are calls. A node starts again at a pair of two numbers
/// from 1 to 255.
pub fn networks_fit()
    ensures declared { DeclaredOnce }
    ensures differ { CallsDeclaredOnce }
    ensures settings { SettingsFit }
    ensures mail { NoMailAtPrompts }
    ensures ranges { SettingsInRange }
    ensures calls { CallsAreCalls }
    ensures pairs { PairsArePairs }
{
    ax_address::laws::call_texts();
}
