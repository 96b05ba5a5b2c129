// The sheet, its refusals, opening and starts (document 01, "The sheet" and "Refused by the sheet or the choice"): definitions. No functions.
#![tactic(auto)]
