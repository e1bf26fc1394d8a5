// What follows for events whose items are free.
ghost use Rattle.frontier_memo.specs.Laws.{FreeAddsFit, KeysGrow};

/// Items may be added of which no key waits and each has its own.
pub fn free_adds_fit()
    ensures { FreeAddsFit }
{}

/// With such items as many keys more are known as keys of theirs were nowhere.
pub fn keys_grow()
    ensures { KeysGrow }
{}
