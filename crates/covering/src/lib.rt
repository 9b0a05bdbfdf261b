// No code: the rectangles of every layout that is read fresh cover its picture.
#![tactic(auto)]
