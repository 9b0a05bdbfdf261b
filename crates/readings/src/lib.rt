// No code: the readings of document 01 that are to be proved, a row for each, and the claim over all rows.
#![tactic(auto)]
