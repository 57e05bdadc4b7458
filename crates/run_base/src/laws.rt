//! Laws of the courses of calls.
ghost use Rattle.run_base.specs.Courses.{SleepersStood, StandsFollowSteps};

/// Each sleep of a call follows a stand of its thread under a key, and the thread has not left that
/// queue by itself since.
pub fn sleepers_stood()
    ensures { SleepersStood }
{}

/// Each stand of a call's thread in a queue is in the visit of the section in which the thread took its last
/// step on a word. So the check of the word and the stand are one event.
pub fn stands_follow_steps()
    ensures { StandsFollowSteps }
{}
