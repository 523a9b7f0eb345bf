// Choices, steps that may fail, and tests on lists: the words in which the definitions of the
// layers above are written. No code.
#![tactic(auto)]
