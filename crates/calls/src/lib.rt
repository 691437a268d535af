#![tactic(auto)]

// What calls do, one after the other: definitions, and laws of single calls; no code.
