//! One page at a time, and what a page that can't be had ends.
ghost use Rattle.gp_asking.specs.Asking.{AskingLaw};
ghost use Rattle.gp_asking.specs.Failing.{FailingLaw};

/// The law of asking. A Take of a hold of one's own that tells a position to recover from, and no end, has asked for a page. From
/// then on no Take that tells no end tells a position, whatever others do: only a page, or its failure, ends that.
pub fn asking_law()
    ensures { AskingLaw }
{}

/// The law of failing. Where a Take of a hold of one's own told that it ended as unrecovered, one has told oneself that a page of
/// it can't be had, whatever others did: nothing else ends a hold so.
pub fn failing_law()
    ensures { FailingLaw }
{}
