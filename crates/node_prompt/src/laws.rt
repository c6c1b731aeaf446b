//! Laws of the definitions of lines and replies alone. No code calls them.
ghost use Rattle.node_prompt.specs.Laws.{WantedIsAskedFor, RoutesAreAskedFor, CaseIsNothing, AllIsReply};

/// The routes to a destination are wanted, and shown, exactly for a line that is `NODES` or `N` and a call, in letters of any case.
pub fn routes_to()
    ensures wanted { WantedIsAskedFor }
    ensures shown { RoutesAreAskedFor }
{}

/// Two lines that differ in the case of letters from a to z alone are answered alike.
pub fn letter_case()
    ensures { CaseIsNothing }
{}

/// Every text that goes to a user begins with the node's alias and call, and ends with CR.
pub fn replies()
    ensures { AllIsReply }
{}
