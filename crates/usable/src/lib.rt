// No code: every accepted sequence header is usable for a frame.
#![tactic(auto)]
