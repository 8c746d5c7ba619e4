// No code: theorems over what the four entries mean. `specs/` has the words that they are stated in.
#![tactic(auto)]
