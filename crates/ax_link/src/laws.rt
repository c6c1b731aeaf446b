//! What holds of two ends of a link over a channel that loses frames but neither reorders nor repeats them. Called by the laws of
//! `link_life` and `link_table`.
ghost use Rattle.std.specs.Prelude.{◌≡◌, ◌≤◌, ◌++◌, ◌⊎◌, ℕ, List, [], ◌∷◌, false, true, length};
ghost use mathlib.Core.List.{IsPrefix};
ghost use Rattle.ax_link.specs.declared.kind.Kind.TheVariants.{Ua};
ghost use Rattle.ax_link.specs.declared.phase.LinkPhase.TheVariants.{SettingUp, Up};
ghost use Rattle.ax_link.specs.State.{Frame, State, begin};
ghost use Rattle.ax_link.specs.Moves.{fill, finish};
ghost use Rattle.ax_link.specs.Table.{Arrive, Input, Send, step};
ghost use Rattle.ax_link.specs.Pair.{PairSound, Both, Core, Queue, InScope, IsNew, Fits, NoRestartIn, OfNoAccount, core, opens_count, texts_of, acks_of, after_ua};
ghost use Rattle.ax_link.specs.Runs.{CleanRun, Ends, EndsBounded, Event, Safe, Side, Starts, TakenSafe, carrying, losing, new_ends, run, two_new};
ghost use Rattle.ax_link.specs.Opening.{rules_new};
ghost use Rattle.ax_link.specs.Carrying.{OpensSo, UpStaysOn};
ghost use Rattle.ax_link.specs.Standing.{KeepsItsShare};
ghost use Rattle.ax_link.specs.Laws.{BoundsStay, FramesCanBeWritten, KindsGoOut, NoticesAre, PayloadsStay, SettingsStay};
ghost use Rattle.ax_link.specs.declared.config.LinkConfig.{LinkConfig};
ghost use Rattle.radio_base.specs.declared.payload.Payload.{Payload};

/// A call or a tick at either end, the arrival of the oldest frame or its loss, a fill and a finish by themselves
/// keep the pair sound, as long as no set-up command is put out or arrives and no end that is Up leaves Up.
pub fn pair_step()
    ensures left { (now : ℕ) (l r : State) (i : Input) (to_l to_l' to_r : List Frame) →
        Queue i to_l to_l' → InScope l i (step l i now) → PairSound l r to_l to_r →
        PairSound (step l i now).link r to_l' (to_r ++ (step l i now).outs) }
    ensures right { (now : ℕ) (l r : State) (i : Input) (to_l to_r to_r' : List Frame) →
        Queue i to_r to_r' → InScope r i (step r i now) → PairSound l r to_l to_r →
        PairSound l (step r i now).link (to_l ++ (step r i now).outs) to_r' }
    ensures lost { (l r : State) (f : Frame) (to_l to_r : List Frame) →
        PairSound l r (f ∷ to_l) to_r → PairSound l r to_l to_r }
    ensures filled { (now : ℕ) (l r : State) (to_l to_r : List Frame) → PairSound l r to_l to_r →
        PairSound (fill now (begin l)).link r to_l (to_r ++ (fill now (begin l)).outs) }
    ensures finished { (now : ℕ) (l r : State) (to_l to_r : List Frame) →
        (l.phase ≡ Up → (finish now (begin l)).link.phase ≡ Up) → PairSound l r to_l to_r →
        PairSound (finish now (begin l)).link r to_l (to_r ++ (finish now (begin l)).outs) }
    ensures swapped { (l r : State) (to_l to_r : List Frame) →
        PairSound l r to_l to_r → PairSound r l to_r to_l }
{}

/// Where one end has just become Up or was reset in Up, and the other is SettingUp, the pair is sound: nothing was
/// counted or got, at most one UA with F is under way to the end that is SettingUp and no text or acknowledgement
/// behind it, and none is under way to the other end. The windows have to fit the modulus.
pub fn pair_start()
    ensures sound { (l r : State) (to_l to_r : List Frame) → l.phase ≡ Up → r.phase ≡ SettingUp →
        Fits (core l) (core r) → Fits (core r) (core l) → IsNew l → IsNew r → opens_count to_r ≤ 1 →
        texts_of (after_ua to_r) ≡ [] → acks_of (after_ua to_r) ≡ [] → texts_of to_l ≡ [] → acks_of to_l ≡ [] →
        PairSound l r to_l to_r }
{}

/// In a sound pair each end has got a beginning of what was given to the other, and counts as acknowledged no more
/// than the other has got.
pub fn pair_safe()
    ensures safe { (l r : State) (to_l to_r : List Frame) → PairSound l r to_l to_r →
        IsPrefix r.received l.given × IsPrefix l.received r.given × (l.acked ≤ length r.received)
        × (r.acked ≤ length l.received) }
{}

/// A step of an end that is Up keeps the payloads and the acknowledgements of both ways sound, whether the end stays
/// Up or leaves it, unless it begins anew: the frame that arrives is neither a set-up command nor FRMR. So does an end that comes up by
/// a UA with F, even where it releases in the same step, an end that is given a payload in whatever phase, and the loss of the oldest frame.
pub fn pair_left()
    ensures both { (now : ℕ) (l : State) (i : Input) (other : Core) (to_l to_l' to_other : List Frame) →
        l.phase ≡ Up → Queue i to_l to_l' → NoRestartIn i → Both (core l) other to_l to_other →
        Both (core (step l i now).link) other to_l' (to_other ++ (step l i now).outs) }
    ensures opens { (now : ℕ) (l : State) (f : Frame) (other : Core) (to_l to_other : List Frame) →
        l.phase ≡ SettingUp → f.kind ≡ Ua true → Both (core l) other to_l to_other →
        Both (core (step l (Arrive f) now).link) other to_l (to_other ++ (step l (Arrive f) now).outs) }
    ensures sends { (now : ℕ) (l : State) (p : Payload) (other : Core) (to_l to_other : List Frame) →
        Both (core l) other to_l to_other
        → Both (core (step l (Send p) now).link) other to_l (to_other ++ (step l (Send p) now).outs) }
    ensures lost { (l r : Core) (f : Frame) (to_l to_r : List Frame) → Both l r (f ∷ to_l) to_r → Both l r to_l to_r }
{}

/// A frame that brings no payload, acknowledges nothing and opens no end may come into the queue at any place, and go
/// from it. Of both ways alone, only the payloads and the acknowledgements under way are of account.
pub fn pair_frames()
    ensures comes { (l r : State) (f : Frame) (before behind to_r : List Frame) → OfNoAccount f →
        PairSound l r (before ++ behind) to_r → PairSound l r (before ++ f ∷ behind) to_r }
    ensures goes { (l r : State) (f : Frame) (before behind to_r : List Frame) → OfNoAccount f →
        PairSound l r (before ++ f ∷ behind) to_r → PairSound l r (before ++ behind) to_r }
    ensures both { (l r : Core) (to_l to_l' to_r to_r' : List Frame) →
        texts_of to_l ≡ texts_of to_l' → acks_of to_l ≡ acks_of to_l' →
        texts_of to_r ≡ texts_of to_r' → acks_of to_r ≡ acks_of to_r' →
        Both l r to_l to_r → Both l r to_l' to_r' }
{}

/// Two ends that start Down and new, with windows that fit: after any clean run of calls, ticks, arrivals and losses at
/// either end, each end has got a beginning of what was given to the other, and counts as acknowledged no more than the
/// other has got. A run is clean while at most one set-up command was ever put out and no end that has been Up has left
/// Up. Each beginning of a clean run is clean, so this holds at each moment of it. Two links that were just made, of one modulus and
/// both with SREJ or both without, start so. There is a clean run that carries a payload, and one with SREJ in which a
/// payload is lost and the next one comes before its turn. Where the links are within their bounds at the start, as those are
/// that were just made, all that was got at an end but what its inbox holds, so what was taken, is a beginning of what was given
/// to the other.
pub fn link_safe()
    ensures safe { (w : Ends) (events : List (Side × Event)) → Starts w → CleanRun w events → Safe (run w events) }
    ensures new { (size : ℕ) (a b : LinkConfig) → (size ≡ 8) ⊎ (size ≡ 128) → a.srej ≡ b.srej →
        Starts (new_ends (rules_new size a) (rules_new size b)) }
    ensures met { (p : Payload) → CleanRun (two_new false) (carrying p) ×
        ((run (two_new false) (carrying p)).right.link.received ≡ p ∷ [])
        × ((run (two_new false) (carrying p)).left.link.acked ≡ 1) }
    ensures early { (p q : Payload) → CleanRun (two_new true) (losing p q) ×
        ((run (two_new true) (losing p q)).right.link.received ≡ p ∷ q ∷ [])
        × ((run (two_new true) (losing p q)).left.link.acked ≡ 2) }
    ensures taken { (w : Ends) (events : List (Side × Event)) → Starts w → EndsBounded w → CleanRun w events
        → TakenSafe (run w events) }
    ensures bounded { (size : ℕ) (a b : LinkConfig) → (size ≡ 8) ⊎ (size ≡ 128) → a.srej ≡ b.srej →
        EndsBounded (new_ends (rules_new size a) (rules_new size b)) }
    ensures begun { (w : Ends) (early later : List (Side × Event)) → CleanRun w (early ++ later) → CleanRun w early }
{}

/// Of each step, whatever comes. The settings stay. A link within its bounds is left within them. Whatever property all
/// payloads have that were given, and whatever property all have that came: the step keeps them, where what it takes in has
/// them, and each payload that it puts out has the first; so it is one that was given. It gives exactly the notice that is
/// stated for its input, and no other. And only frames of certain kinds go out, by the phase in which it began.
pub fn steps()
    ensures settings { SettingsStay }
    ensures bounds { BoundsStay }
    ensures payloads { PayloadsStay }
    ensures notices { NoticesAre }
    ensures kinds { KindsGoOut }
{}

/// An end that is Up stays so or releases with each input that gives no notice, and so does one that comes up by a UA with F; what it
/// puts out are payloads, supervisory frames and the release.
pub fn up_stays_on()
    ensures up { UpStaysOn }
    ensures opens { OpensSo }
{}

/// A link keeps at most its share: 50,176 octets of modulo 8, and 65,536 of modulo 128. What waits to be fetched isn't counted.
pub fn kept()
    ensures { KeepsItsShare }
{}

/// Each frame that a step of a link within its bounds puts out can be written, and so be read: its numbers are below the modulus, and it
/// has a PID and information exactly where its kind has them. A set-up command is of the link's modulus.
pub fn frames_can_be_written()
    ensures { FramesCanBeWritten }
{
    steps();
}
