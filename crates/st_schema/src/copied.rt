//! Copies of what a schema says.

use crate::names::{FieldDef, FieldRule, Form, KindName};
use st_ids::Copied;
use std::alloc::{AllocError, Global};

impl Copied for KindName {
    fn copy(&self, _alloc: Global) -> Result<Self, AllocError> {
        Ok(*self)
    }
}

impl Copied for FieldRule {
    fn copy(&self, alloc: Global) -> Result<Self, AllocError> {
        let kind = self.kind;
        let types = self.types.copy(alloc)?;
        Ok(FieldRule { kind, types })
    }
}

impl Copied for FieldDef {
    fn copy(&self, alloc: Global) -> Result<Self, AllocError> {
        let key = self.key.copy(alloc)?;
        let kind = self.kind;
        let types = self.types.copy(alloc)?;
        Ok(FieldDef { key, kind, types })
    }
}

impl Copied for Form {
    fn copy(&self, alloc: Global) -> Result<Self, AllocError> {
        match self {
            Form::Array(types) => Ok(Form::Array(types.copy(alloc)?)),
            Form::Map(types) => Ok(Form::Map(types.copy(alloc)?)),
            Form::Object(fields) => Ok(Form::Object(fields.copy(alloc)?)),
        }
    }
}
