// What is so of the answers.
ghost use Rattle.ae_dist.specs.Laws.{PlanningHasOneAnswer, SendingHasOneAnswer, WritingHasOneAnswer};

/// Laws: what the files of a disk say of sending a change, of its text, and of the plan of a change set, is one answer. So each answer
/// that comes with its cause comes exactly where its cause is so, but for a fault of the disk and out of memory.
pub fn change_sets_have_one_answer()
    ensures sending { SendingHasOneAnswer }
    ensures writing { WritingHasOneAnswer }
    ensures planning { PlanningHasOneAnswer }
{}
