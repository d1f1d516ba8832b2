// That a station operation takes exactly what some sound system hands to it. There is no code.
#![tactic(auto)]
