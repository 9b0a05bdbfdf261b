// No code: theorems about the definitions of the reader, for whoever reads or uses them.
#![tactic(auto)]
