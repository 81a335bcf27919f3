// Laws of trap tables: the trap of each kind, and of the whole way up. No code.
#![tactic(auto)]
