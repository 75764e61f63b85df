// Wrong answers that the promises of the public calls rule out, on sheet A. All of it is in specs/.
#![tactic(auto)]
