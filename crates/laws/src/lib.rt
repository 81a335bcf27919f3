// Laws that the rooms above share: of lists by their places, of the lowest place, of refusals given and passed, of unique answers. No code.
#![tactic(auto)]
