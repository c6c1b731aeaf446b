//! What holds of the words of commands. Called by `top` of `node_cmd`.
ghost use Rattle.tool_cmd.specs.Laws.{AreOfOneGateway, AreOfOneLife};

/// Words ask for one gateway at most, and give the settings of one life at most.
pub fn words_ask_for_one()
    ensures gateway { AreOfOneGateway }
    ensures life { AreOfOneLife }
{}
