// Sheet A and its numbers: what document 01 marks to be proved, and lines for C-11. All of it is in specs/.
#![tactic(auto)]
