//! The settings of the database: each a word and its value.
#![tactic(auto, using(crate::proofs::SettingLemmas::all_read))]

ghost use Rattle.std.specs.Prelude.{◌∷◌, [], ◌≡◌, map};
ghost use Rattle.std.specs.FinMap as finite;
ghost use Rattle.sqlite_value.specs.declared.value.Value.TheVariants.{Text};
ghost use Rattle.tables_schema.specs.Forms.{meta};
ghost use Rattle.tables_sql.specs.Contents.{Bytes, texts_cmp};
ghost use Rattle.tables_rows.specs.Entries.{setting_of, ShowsSetting, IsPairRow};
ghost use Rattle.tables_rows.specs.Keys.{same, without_keys};
ghost use Rattle.std.specs.Ordering.{is_lt};

use crate::{Delete, Find, Found, Insert, queries};
use sqlite::{Alter, Connection, Transaction, params};
use std::alloc::Global;
use tables_sql::entry::Entry;
use tables_sql::failure::Failed;
use tables_sql::statement;

/// A setting: a word, and its value.
#[derive(Debug, Drop)]
pub struct Setting {
    pub word: String,
    pub value: String,
}

impl Entry for Setting {
    ghost is_shown = { ShowsSetting };

    ghost is_legible = { IsPairRow };

    ghost is_below = { λ a b. is_lt (texts_cmp (setting_of a).0 (setting_of b).0) };

    fn read(row: &sqlite::Row) -> Result<Setting, Failed> {
        Ok(Setting {
            word: row.get(0)?,
            value: row.get(1)?,
        })
    }

    fn is_below(&self, other: &Setting) -> bool {
        self.word < other.word
    }
}

/// All settings, in order.
#[derive(Drop)]
pub struct All;

impl Find for All {
    type Entry = Setting;

    ghost shows = { λ it c all. map setting_of all ≡ finite.entries c.meta };

    fn find<S: Alter>(&self, alloc: Global, conn: &mut Connection<S>) -> Found<Setting> {
        queries::select(alloc, conn, "SELECT word, val FROM meta ORDER BY word", &[])
    }
}

/// The setting of this word.
#[derive(Drop)]
pub struct Of<'a> {
    pub word: &'a str,
}

impl<'a> Delete for Of<'a> {
    ghost change = { λ it c. record c { meta = without_keys c.meta (λ k. same k it.word.now) } };

    fn delete<S: Alter>(&self, tx: &mut Transaction<'_, S>) -> Result<(), Failed> {
        statement::remove(tx, "DELETE FROM meta WHERE word = ?1", params![self.word])
    }
}

/// The row of one setting.
#[derive(Drop)]
pub struct Row<'a> {
    pub word: &'a str,
    pub value: &'a str,
}

impl<'a> Insert for Row<'a> {
    ghost table = { meta };

    ghost columns = { λ it. Text it.word.now ∷ Text it.value.now ∷ [] };

    ghost Kept = { Bytes };

    ghost present = { λ it c. finite.get c.meta it.word.now };

    ghost change = { λ it c. record c { meta = finite.insert c.meta it.word.now it.value.now } };

    fn insert<S: Alter>(&self, tx: &mut Transaction<'_, S>) -> Result<(), Failed> {
        // A text is UTF-8.
        let _word = self.word.as_bytes();
        let _value = self.value.as_bytes();
        let text = "INSERT INTO meta (word, val) VALUES (?1, ?2)";
        statement::add(tx, text, params![self.word, self.value])
    }
}
