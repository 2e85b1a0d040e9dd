// No code: the history of a desk on plain sequences, and that the desk follows it line by line.
#![tactic(auto)]
