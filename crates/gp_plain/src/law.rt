//! The laws of the definitions, each the contract of a call.
ghost use Rattle.gp_plain.specs.Chain.{ChainLaw, WindowLaw};
ghost use Rattle.gp_plain.specs.Kinds.{KindLaw};
ghost use Rattle.gp_plain.specs.Taken.{TakenLaw};
ghost use Rattle.gp_plain.specs.Order.{OrderLaw};
ghost use Rattle.gp_plain.specs.Ends.{AnswerLaw, PositionLaw, ToldLaw};
ghost use Rattle.gp_plain.specs.Sockets.{SocketLaw};
ghost use Rattle.gp_plain.specs.Others.{MovesLaw, OthersLaw, OwnersLaw, ReleasedLaw, ReleasedShareLaw, ReleasedSharesLaw};

/// The chain law. In every history, whatever the order of its entries: for every chain that covers a reliable
/// stream hold, the text of the hold's log is its opening and then the contents of the chain's items between the
/// hold's previous id and its position, in order, each once, none skipped. A close stands among them only as the
/// last, and the hold has then ended. A chain covers a hold only where the pages that the hold accepted are honest: each
/// has the contents of the chain's items between its two ids. Stale pages, and several pages, may stand anywhere.
pub fn chain_law()
    ensures { ChainLaw }
{}

/// The law of what was taken. In every history, for every chain that covers a reliable stream hold: the text of the pieces that
/// Takes gave is a beginning of the opening and then the contents of the chain's items behind the hold's previous id, in order,
/// each once, none skipped. A close stands among these items only as the last.
pub fn taken_law()
    ensures { TakenLaw }
{}

/// The law of the window. In every history, no chained item of the last 4,096 published ones has the position of a
/// live stream hold, which a chain covers, as its previous id: nothing that could be sent is left.
pub fn window_law()
    ensures { WindowLaw }
{}

/// The law of order. Two histories that begin with the same attaches, and that then publish the same items in any
/// order, fewer than 4,096 and no two of a channel with one id, leave each reliable stream hold of those attaches,
/// which one chain covers in both, whose log has no page of a recovery in either, and which ended in neither, with the
/// same text and the same position. Takes, other attaches and pages of other holds may stand anywhere behind the first.
pub fn order_law()
    ensures { OrderLaw }
{}

/// The law of others. Entries of others change neither what was taken of a hold, nor the positions that it was told to
/// recover from, nor the end that it was told, nor whether it was let go.
pub fn others_law()
    ensures { OthersLaw }
{}

/// The law of owners. Entries of others leave the list of all holds of an owner, with what the law of others says of
/// each.
pub fn owners_law()
    ensures { OwnersLaw }
{}

/// The law of released holds. Nothing changes anything of a hold once it was let go.
pub fn released_law()
    ensures { ReleasedLaw }
{}

/// The law of released shares. What was taken of a hold that was let go, and all else of it that only its owner moves,
/// stays as it is. Where all holds of an owner were let go, so does the list of them, until the owner attaches another.
pub fn released_shares_law()
    ensures one { ReleasedShareLaw }
    ensures all { ReleasedSharesLaw }
{}

/// The law of moves. Only an Attach, a Take and a Detach change what owners have of their holds.
pub fn moves_law()
    ensures { MovesLaw }
{}

/// The law of positions. The position of a hold is the id of the last piece of its log that has one, or its first position.
pub fn position_law()
    ensures { PositionLaw }
{}

/// The law of told ends. Where a Take told an end, nothing waits for the hold, and it ended by that cause and was let go. A
/// hold that was let go has ended.
pub fn told_law()
    ensures { ToldLaw }
{}

/// The law of answers. A piece that brings an end is the last of its log, and the hold ended by it. So the log of a response
/// hold has at most one answer, which is its last piece, and the hold ended Answered exactly by it.
pub fn answer_law()
    ensures { AnswerLaw }
{}

/// The law of kinds. What a Take gives of a kept hold fits what the hold was attached with: it never tells Detached. A stream
/// recovers only with a link and while it is live, and ends Closed, Gap without a link, Overflow or Unrecovered. A plain
/// stream and a socket never recover, and end Closed or Overflow. A response hold recovers exactly where it ends Retry, which
/// needs a previous id, and else ends Answered, TimedOut or Overflow. A piece that brings an end is the last that is given, and
/// the end is told with it; Answered is told exactly so.
pub fn kind_law()
    ensures { KindLaw }
{}

/// The law of sockets. What the log of a socket gets from a moment on are the messages that its owner pushes to it, and those of
/// the items, but for repeats, that are published on the channels that it has joined by then, in the order of the history: all of
/// them while it is live, and else a beginning of them.
pub fn socket_law()
    ensures { SocketLaw }
{}
