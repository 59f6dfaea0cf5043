//! When each refusal comes, in the words of docs/profile/statuses.md.

/// The four digits of a status, the statement, and when it gives that status.
pub static STATUSES: &str = "\
0128|OPEN|This unit has the area open, in whatever mode.
0129|OPEN|The mode conflicts with that of a unit that has the area open.
0201|CLOSE|This unit has not opened the area.
0301|FIND|An area that this form of FIND uses is not open by this unit.
0306|FIND|The current from which this form of FIND starts is null: of the set, the record type or the area.
0307|FIND|There is no such member of the set, no such key in the area, or no further duplicate.
0313|FIND|FIND CURRENT OF RUN-UNIT alone: the current of run-unit is null.
0317|FIND|The record from which this form of FIND starts is deleted: the current, or the owner in the current of the set.
0323|FIND|NEXT and PRIOR in a set alone: the record at the position is no longer in that owner's list.
0326|FIND|FIND KEY: no live record has the key, or its number is above the capacity. FIND CALC, FIND SORTED: no live record, or no member, has the values.
0401|GET|The area of the current of run-unit is not open by this unit.
0413|GET|The current of run-unit is null.
0417|GET|The current of run-unit is deleted.
0420|GET|The statement names a record type, and the current of run-unit is of another.
0501|STORE|The area of the record type, or the home of a set in which it is AUTOMATIC, is not open by this unit.
0505|STORE|A live record has the same CALC items and duplicates are not allowed, or a member of an automatic set that is sorted with duplicates NOT ALLOWED has the same key.
0506|STORE|The current of a set in which the record type is AUTOMATIC is null.
0509|STORE|The area of the record type, or the home of a set in which it is AUTOMATIC, is not open in an UPDATE mode.
0511|STORE|No number of the record type is free.
0517|STORE|The owner in the current of an automatic set is deleted.
0523|STORE|An automatic set has ORDER NEXT or PRIOR, and the record at the position is no longer in that owner's list.
0601|INSERT|The area of the record's type or the home of the set is not open by this unit.
0603|INSERT|This unit keeps the record, and another unit has changed it since.
0605|INSERT|The set is sorted with duplicates NOT ALLOWED, and a member has the same key.
0606|INSERT|The current of the set is null.
0609|INSERT|The area of the record's type or the home of the set is not open in an UPDATE mode.
0613|INSERT|The current of run-unit is null.
0614|INSERT|The record's type is MANDATORY AUTOMATIC in the set.
0616|INSERT|The record is a member of an occurrence of the set, this one or another.
0617|INSERT|The current of run-unit or the owner in the current of the set is deleted.
0620|INSERT|The record's type is no member type of the set.
0623|INSERT|The set has ORDER NEXT or PRIOR, and the record at the position is no longer in that owner's list.
0701|REMOVE|The area of the record's type or the home of the set is not open by this unit.
0703|REMOVE|This unit keeps the record, and another unit has changed it since.
0709|REMOVE|The area of the record's type or the home of the set is not open in an UPDATE mode.
0713|REMOVE|The current of run-unit is null.
0715|REMOVE|The record's type is MANDATORY in the set.
0717|REMOVE|The current of run-unit is deleted.
0720|REMOVE|The record's type is no member type of the set.
0722|REMOVE|The record is in no occurrence of the set.
0801|MODIFY|The area of the record type, or the home of a sorted set whose key item is named, is not open by this unit.
0803|MODIFY|This unit keeps the record, and another unit has changed it since.
0805|MODIFY|A CALC item is named, duplicates are not allowed, and another live record has the CALC items that this one would have; or another member of a sorted set with duplicates NOT ALLOWED has the new key.
0809|MODIFY|The area of the record type, or the home of a sorted set whose key item is named, is not open in an UPDATE mode.
0813|MODIFY|The current of run-unit is null.
0817|MODIFY|The current of run-unit is deleted.
0820|MODIFY|The current of run-unit is of another type than the statement names.
0901|DELETE|An area that DELETE takes is not open by this unit: of the record's type, of the types that can be reached from it as members, or the home of a set in which one of them is a member.
0903|DELETE|This unit keeps the record, and another unit has changed it since.
0909|DELETE|An area that DELETE takes is not open in an UPDATE mode: of the record's type, of the types that can be reached from it as members, or the home of a set in which one of them is a member.
0913|DELETE|The current of run-unit is null.
0917|DELETE|The current of run-unit is deleted.
0930|DELETE|The plain form alone: the record owns a member in some set.
1001|KEEP|The area of the current of run-unit is not open by this unit.
1013|KEEP|The current of run-unit is null.
1017|KEEP|The current of run-unit is deleted.
1113|FREE|FREE without ALL alone: the current of run-unit is null.
1131|FREE|FREE without ALL alone: the current of run-unit is not in the kept list.";
