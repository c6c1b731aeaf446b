//! Laws of the definitions of frames alone. Called by `read`, and by `node_core`.

ghost use Rattle.ax_frame.specs.Faults.{FaultIsFirst};
ghost use Rattle.ax_frame.specs.Frames.{HeadWithoutFault, HeadSpelledOnce, SpelledWithoutFault, SpelledOnce, SpelledHeadIsRead, SpelledIsRead};

/// Octets that begin with a head have no fault in it, are read as it, and spell no other head.
pub fn head_spelling()
    ensures without_fault { HeadWithoutFault }
    ensures read { SpelledHeadIsRead }
    ensures once { HeadSpelledOnce }
{
    ax_address::laws::address_spelling();
}

/// Octets that spell a frame have no fault, are read as it, and spell no other frame.
pub fn frame_spelling()
    ensures without_fault { SpelledWithoutFault }
    ensures read { SpelledIsRead }
    ensures once { SpelledOnce }
{
    ax_address::laws::address_spelling();
}

/// The first fault of octets is at the first octet that no frame has at its place, or where they end and one must follow.
pub fn frame_faults()
    ensures { FaultIsFirst }
{
    ax_address::laws::address_faults();
}
