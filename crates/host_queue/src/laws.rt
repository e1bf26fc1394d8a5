// What the order of a queue is, whatever its entries are.
ghost use Rattle.host_queue.specs.Laws.{InRankOrder, OneOrder};

/// The same entries stand in one order. So an item that is put back stands where it stood.
pub fn one_order()
    ensures { OneOrder }
{}

/// Adds, each with a greater ordinal than those before it, stand as the queues of their history.
pub fn in_rank_order()
    ensures { InRankOrder }
{}
