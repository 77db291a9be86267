// The joined log of two consecutive ones, in definitions, and its laws: it is accepted, its sums are the two logs' added, and each standard keeps its credited units.
#![tactic(auto)]
