ghost use Rattle.std.specs.Prelude.{◌≡◌, IfOk};

use crate::run::UaText;
use std::alloc::Global;
use ua_base::OutOfMemory;

/// A name in a namespace (OPC 10000-3, 8.3).
#[derive(Debug, Drop)]
pub struct QualifiedName {
    pub namespace: u16,
    pub name: UaText,
}

/// A text in a language (OPC 10000-3, 8.5): `locale` says which, as `en-US`, and may be null.
#[derive(Debug, Drop)]
pub struct LocalizedText {
    pub locale: UaText,
    pub text: UaText,
}

impl QualifiedName {
    /// The same name once more.
    pub fn copy(&self, alloc: Global) -> Result<QualifiedName, OutOfMemory>
        ensures { IfOk result (λ copied. copied ≡ self.now) }
    {
        let name = self.name.copy(alloc)?;
        Ok(QualifiedName {
            namespace: self.namespace,
            name,
        })
    }
}

impl LocalizedText {
    /// The same text once more.
    pub fn copy(&self, alloc: Global) -> Result<LocalizedText, OutOfMemory>
        ensures { IfOk result (λ copied. copied ≡ self.now) }
    {
        let locale = self.locale.copy(alloc)?;
        let text = self.text.copy(alloc)?;
        Ok(LocalizedText { locale, text })
    }
}
