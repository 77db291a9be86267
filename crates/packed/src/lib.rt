// A log packed, in definitions, and its laws: nothing that a log says changes, the packed log is accepted, none that says the same has fewer records, and packing again
// changes nothing.
#![tactic(auto)]
