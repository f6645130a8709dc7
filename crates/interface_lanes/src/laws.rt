//! What holds of all tables. The functions are theorems: their contracts say them, and their bodies are empty.
ghost use Rattle.interface_lanes.specs.LanesById.{EachCountIsOfLanes, EachIdHasOneCount};

/// A count is a number of lanes that a data path can have: 1 to 8.
pub fn each_count_is_of_lanes()
    ensures { EachCountIsOfLanes }
{}

/// No ID has two rows in a table, and so no two counts.
pub fn each_id_has_one_count()
    ensures { EachIdHasOneCount }
{}
