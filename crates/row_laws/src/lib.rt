// Laws of formula rows: what a sound row and a requirement are, occurrences, bytes there and back, when 3, 7, 8 and 9 are given. No code.
#![tactic(auto)]
