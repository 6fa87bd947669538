// Laws about copied blocks and attachments: where they are placed, their lengths and their order; no code.
