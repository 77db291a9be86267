// What a buyer calls. No call has a `requires`: each takes every sequence of bytes, and answers or refuses. In specs/ and proofs/ stand the laws of
// every accepted log that a buyer looks for.
#![tactic(auto)]

// The state times, the quantities, the set of doubles and the losses, of a module and of the tool, or why a call is refused.
pub use answering::{
    module_figures, module_losses, module_quantities, module_state_times, tool_figures,
    tool_losses, tool_quantities, tool_state_times,
};
pub use e79::{Figures, Quantities};
pub use losses::Losses;
pub use rules::StateTimes;

// What a call is refused with.
pub use rules::{Ground, LogList, Refusal};

// The actual units credited to each standard, as numbers and as a listing, and the standard in force for a module, a recipe and a time.
pub use crediting::{InForce, credited_units, standard_in_force};
pub use listing::{credited_listing, print_credited};

// The verdict for a buffer, the report, and what the shift program prints.
pub use reporting::{examine, print_report, report, write_report};

// The supplemental figures of the tool.
pub use supplemental::{Supplemental, tool_supplemental};

// The tables of state times, of quantities and of losses, the lines of supplemental figures, a refusal or any three numbers in words, and its row on the card.
pub use appendix::{print_supplemental, print_supplemental_words};
pub use card::{explain, words_at, words_of};
pub use printing::{Table, print_table, print_words};

// One log of two consecutive ones.
pub use joining::join_logs;

// A log without the records that say nothing new, and what packing it did, in lines.
pub use packing::{pack_log, print_packing};

// A log written record by record, and the test of what was written.
pub use writing::{finish_log, put_header, put_standard, put_state, put_unit};
