// The greedy feed over any machine that takes one sample at a time: all of it is specs/.
#![tactic(auto)]
