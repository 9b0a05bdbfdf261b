// No code: the row of bits of a tile layout, and the laws that a layout and its bits belong together.
#![tactic(auto)]
