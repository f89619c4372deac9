/// How many bytes or values stand where there is no limit but the record's: as many as a word can say.
pub(crate) const NO_LIMIT: u32 = u32::MAX;
