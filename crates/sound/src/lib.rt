// Laws of accepted logs, for the calls that make a log of others: a log whose records are sound and whose header is within its bounds, written as bytes, is accepted and
// says what the log says; codes and counts over a list in two parts; the one standard in force of a list that rises.
#![tactic(auto)]
