// Lists place by place, runs of calls and their reordering: definitions and laws that know nothing of interrupts. There is no code here.
#![tactic(auto)]
