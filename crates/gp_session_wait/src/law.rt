//! What a client of a long poll is sent.
ghost use Rattle.gp_session_wait.specs.Chains.{PollChainLaw, PollItemLaw};
ghost use Rattle.gp_session_wait.specs.Laws.{AnswerLaw, WaitLaw};

/// The law of the bytes of a long poll. Nothing is sent while it waits. Where it was answered, what was sent, followed by what waits,
/// is one answer, by the end that a Take told: that of the item, or the origin's own.
pub fn wait_law()
    ensures { WaitLaw }
{}

/// The law of one answer. Where a Take told that a long poll was answered, what is sent is the only answer of the hold's log, and its
/// last piece.
pub fn answer_law()
    ensures { AnswerLaw }
{}

/// The law of chains for long polls. For every chain that covers the hold of a long poll with a previous id: its log has, piece by
/// piece, what the chain's items behind the previous id have, in order, each once and none skipped. So the answer, which is the last
/// piece and the only answer, is that of the first of these items that has one.
pub fn poll_chain_law()
    ensures { PollChainLaw }
{}

/// The law of items for long polls without a previous id. Each piece of the hold's log is the answer of an item that was published on
/// one of its channels.
pub fn poll_item_law()
    ensures { PollItemLaw }
{}
