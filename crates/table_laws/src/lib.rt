// No functions: the lent tables are index sets, maps and string tables, and what was added to them since a mark can be taken back.
#![tactic(auto)]
