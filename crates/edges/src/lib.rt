// The starred edge cases of document 01, as one list in specs/ and one claim over it in proofs/; the listings of one shift, of R-1, in the same way; case W whole, from
// the bytes of its log to its report and the tool's losses; bars, revisions and joins by hand; and R1-3 of document 002, from the bytes of its log and its benchmarks to its
// supplemental figures.
#![tactic(auto)]
