ghost use Rattle.std.specs.Prelude.{IfOk};
ghost use Rattle.mg_heard.specs.Asked.{IsQuery};

use crate::asked::Asked;
use crate::keys::keys_for;
use crate::name_fault::NameFault;
use crate::names::Names;
use crate::query::Query;
use mg_dates::Date;
use std::alloc::Global;

/// A query whose listener and talker may be given by name.
#[derive(Drop)]
pub struct AskedQuery {
    /// The listener, or `None` for any listener.
    pub listener: Option<Asked>,
    /// The talker, or `None` for any talker.
    pub talker: Option<Asked>,
    /// If set, leaves out intervals and gaps that are known to end at this time or earlier.
    pub from: Option<Date>,
    /// If set, leaves out intervals and gaps that are known to begin at this time or later.
    pub until: Option<Date>,
}

impl AskedQuery {
    /// Looks up the names in the question, and returns the query with their keys.
    pub fn query(&self, alloc: Global, names: &Names) -> Result<Query, NameFault>
        ensures value { IfOk result (IsQuery names.now self.now) }
    {
        let listener = keys_for(alloc, &self.listener, names)?;
        let talker = keys_for(alloc, &self.talker, names)?;
        Ok(Query {
            listener,
            talker,
            from: self.from,
            until: self.until,
        })
    }
}
