// Laws of truth at a step: every kind unfolded by a step, models of a table, and the columns of the engine. No code.
#![tactic(auto)]
