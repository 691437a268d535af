// The calls that win a chip back: the theorem, its waits, and what no worthless pod can do; no code.
#![tactic(auto)]
