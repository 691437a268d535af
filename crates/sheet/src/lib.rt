// The bench sheet: its marked cases as one statement over one table; no code.
#![tactic(auto)]
