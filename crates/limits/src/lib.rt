// The limits, each with one name. specs/Limits.antt has the same names for the definitions.
#![tactic(auto)]

// The most boards.
pub const BOARDS_MOST: usize = 16;

// The most propositions.
pub const PROPOSITIONS_MOST: usize = 64;

// The most nodes of a rule's formula.
pub const RULE_NODES_MOST: usize = 1024;

// The bytes of a buffer for a rule's text: more than the print of any rule has.
pub const TEXT_LENGTH: usize = 8192;

// The most nodes of a formula that is progressed in one place, and of what it unfolds to.
pub const CENTRAL_NODES_MOST: usize = 4096;

// The most slots of a network, whatever the form of its state: room for one number a slot.
pub const SLOTS_ROOM: usize = 64;

// The most nodes of a network, whatever the form of its state: room for one byte a node.
pub const NODES_ROOM: usize = 4096;

// The most runs of a list, and of the reports of two lists together.
pub const RUNS_MOST: usize = 65536;

// How many rules a list of runs may tell of: their numbers are below this.
pub const RULES_MOST: usize = 256;
