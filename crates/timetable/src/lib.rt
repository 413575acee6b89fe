// 01's timetable rules as definitions, and the theorem that the early starts obey them and are the least that do. No code is in it.
#![tactic(auto)]
