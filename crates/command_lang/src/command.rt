//! Commands.
use mvcc_keys::{Hlc, Items};
use row_codec::{Kind, Row};
use script_grammar::Src;
use table_descriptors::{KeyNames, Name};

/// The database and the name of a table.
pub type Tbl = (Name, Name);

/// What a line asks for.
#[derive(Drop)]
pub enum Command {
    Cluster {
        name: Name,
    },
    Tick {
        wall: u64,
    },
    CreateDatabase {
        name: Name,
    },
    /// The flag of a key column is true where it descends.
    CreateTable {
        table: Tbl,
        columns: Items<(Name, Kind)>,
        key: KeyNames,
        references: Items<Tbl>,
    },
    AddColumn {
        table: Tbl,
        name: Name,
        kind: Kind,
    },
    DropColumn {
        table: Tbl,
        name: Name,
    },
    RenameColumn {
        table: Tbl,
        name: Name,
        to: Name,
    },
    RenameTable {
        table: Tbl,
        to: Name,
    },
    DropTable {
        table: Tbl,
    },
    Upsert {
        table: Tbl,
        rows: Items<Row>,
    },
    Delete {
        table: Tbl,
        keys: Items<Row>,
    },
    DeleteRange {
        table: Tbl,
        lo: Row,
        hi: Row,
    },
    Select {
        table: Tbl,
        at: Option<Hlc>,
    },
    Gc {
        table: Tbl,
        before: Hlc,
    },
    BackupDatabase {
        database: Name,
        collection: Name,
        at: Option<Hlc>,
        history: bool,
    },
    BackupTables {
        tables: Items<Tbl>,
        collection: Name,
        at: Option<Hlc>,
        history: bool,
    },
    /// A further layer on the newest full backup of a collection.
    BackupLatest {
        collection: Name,
        at: Option<Hlc>,
        history: bool,
    },
    RestoreDatabase {
        database: Name,
        source: Src,
        collection: Name,
        at: Option<Hlc>,
        new_name: Option<Name>,
    },
    Forget {
        source: Src,
        collection: Name,
        start: Hlc,
        end: Hlc,
    },
    ShowBackups {
        collection: Name,
    },
}
