// What the numbers of several calls owe to one another. All of it is in specs/.
#![tactic(auto)]
