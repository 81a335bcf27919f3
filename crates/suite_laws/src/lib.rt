// Laws of the suite file: accepted exactly when it is what a writer writes, and when each refusal is given. No code.
#![tactic(auto)]
