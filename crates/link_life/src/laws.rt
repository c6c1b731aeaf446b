//! What holds of each life at each moment, whatever is done. No code calls them.
ghost use Rattle.link_life.specs.Laws.{FramesInTime, HalfIsTooLong, LivesAreSafe, ReportsEnd, SetUpAgain, SetUpsCross};

/// The channel keeps its promise: each frame under way was sent no longer ago than the channel delays one. The refusal `delay` keeps it.
pub fn frames_in_time()
    ensures { FramesInTime }
{}

/// In each life, at each moment, each epoch of each end is safe with its partner, whatever is set up, reset and released, and whatever
/// is lost: where the channel keeps order and two delays are shorter than T1. There is a life in which an end that is Up is reset and
/// carries a payload then, and one in which set-ups cross. With delays of half of T1 there is one that isn't safe.
pub fn life_safe()
    ensures safe { LivesAreSafe }
    ensures reset { SetUpAgain }
    ensures crossing { SetUpsCross }
    ensures sharp { HalfIsTooLong }
{
    ax_link::laws::link_safe();
    ax_link::laws::pair_frames();
    ax_link::laws::pair_left();
    ax_link::laws::pair_start();
    ax_link::laws::steps();
    ax_link::laws::up_stays_on();
}

/// The epochs with which a report ends are those of the life of which the laws speak.
pub fn reports_end()
    ensures { ReportsEnd }
{}
