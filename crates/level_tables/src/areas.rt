// Where the areas of the slice begin. Closures of all sets of facts stand from place 0 on. An area of entries is given by its first
// entry, four numbers to an entry, and a table of pairs by its first place.
pub const ROOM: usize = 105488;

// The nodes: kind, first field, second field, the list of threads that it opens to.
pub const NODES: usize = 1024;

// The number of constraints; the constraints stand after it, in ascending order.
pub const CONSTRAINTS: usize = 4352;

// Nodes that wait to be looked at, each with the list of threads beside it.
pub const WAITING: usize = 1153;

// For each configuration its first reduction, its class at the level, the number of the set of classes that its reductions
// reach, and the number of its line so far.
pub const NUMBERS: usize = 1281;

// The configurations: store and list of threads.
pub const CONFIGURATIONS: usize = 21512;

// The reductions: a configuration's number, and the number of one that it reduces to.
pub const REDUCTIONS: usize = 37898;

// Sets of classes, lines and classes while they are numbered.
pub const LINES: usize = 70668;

// The members of a report: configuration, class reported, class at the level.
pub const MEMBERS: usize = 25860;
