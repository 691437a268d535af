#![tactic(auto)]

// What a call leaves of state and page data fits the 272 bytes of a packed state: laws; no code.
